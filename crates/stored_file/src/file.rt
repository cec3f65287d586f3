// A stored rule file that the reader accepts, with its header and the sets that a repair needs.
ghost use Rattle.std.specs.Prelude.{◌≡◌, Ok, map};
ghost use Rattle.rule_file.specs.RuleFile.{clauses};
ghost use Rattle.rule_file.specs.Reader.{read_stored};
ghost use Rattle.stored_file.specs.Sets.{unordered_mask};

use rule_file::Header;

#[derive(Clone, Copy)]
pub struct StoredFile<'a> {
    pub bytes: &'a [u8],
    pub header: Header,
    // Of each clause that is not in order its set, and of any other the empty set.
    pub sets: &'a [u64],
    pub ghost is_read: { read_stored bytes.now ≡ Ok header },
    pub ghost sets_are: { sets.now ≡ map unordered_mask (clauses bytes.now) },
}
