// Opening a stored rule file.
ghost use Rattle.stored_file.specs.Opened.{Opened};
ghost use Rattle.rule_file.specs.Reader.{read_stored};

use crate::file::StoredFile;
use crate::read_stored_sets;
use answer::Refusal;
use limits::MAX_CLAUSES;

impl<'a> StoredFile<'a> {
    // The stored file with its header and its sets, for which the table is lent, or the reader's refusal.
    #[tactic(auto, using(crate::proofs::StoredLaws::stored_counts))]
    pub fn open(rule: &'a [u8], table: &'a mut [u64; MAX_CLAUSES]) -> Result<Self, Refusal>
        ensures answer { Opened rule.now (read_stored rule.now) result }
    {
        let header = read_stored_sets(rule, table)?;
        Ok(StoredFile {
            bytes: rule,
            header,
            sets: &table[..header.clauses],
        })
    }
}
