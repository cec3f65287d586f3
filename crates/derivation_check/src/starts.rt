// Where the clauses of the rule file and the lines of the derivation begin, kept once: the start of what a reference
// names stands at the reference.
ghost use Rattle.std.specs.Prelude.{◌≡◌, List, ℕ, ◌^◌, ◌<◌, get_or, set};
ghost use Rattle.derivation.specs.DerivationFile.{line_count};
ghost use Rattle.derivation_check.specs.Starts.{max_references, LineStarts, Starts};

use rule_file::RuleFile;
use words::word;

// As many references as 1,024 clauses and 1,024 lines have.
pub(crate) const REFERENCES: usize = 2048;

// A file has few enough words for 16 bits.
#[derive(Clone, Copy)]
pub(crate) struct StartTable {
    pub(crate) words: [u16; REFERENCES],
}

impl StartTable {
    // Keeps the start of what a reference names.
    pub(crate) fn keep(&mut self, reference: usize, i: usize)
        requires reference_lt_max_references { reference < max_references }
        requires i_bound { i < 2 ^ 16 }
        ensures { self.new.words ≡ set self.old.words reference i }
    {
        self.words[reference] = i as u16;
    }

    // The start of what a reference names.
    pub(crate) fn start_of(&self, reference: usize) -> usize
        requires { reference < max_references }
        ensures value { result ≡ get_or self.now.words reference 0 }
    {
        usize::from(self.words[reference])
    }

    // Keeps the starts of all clauses of an accepted file. Those of the lines stay, so that where they are those of all
    // lines of a derivation, the table has the starts of both files.
    #[tactic(auto, using(crate::proofs::StartsLaws::clause_steps))]
    pub(crate) fn keep_clauses(&mut self, file: &RuleFile<'_>)
        ensures { (d : List ℕ) → LineStarts d (line_count d) self.old.words → Starts file.now.bytes.now d self.new.words }
    {
        let mut i = 0;
        for clause in 0..file.header.clauses {
            self.keep(2 * clause, i);
            i = i + 1 + word(file.bytes, i);
        }
    }
}
