// A rule file that the reader accepts, with its header: what the operations above are given.
ghost use Rattle.std.specs.Prelude.{◌≡◌, Ok};
ghost use Rattle.rule_file.specs.Reader.{read_file};

use crate::Header;

#[derive(Clone, Copy)]
pub struct RuleFile<'a> {
    pub bytes: &'a [u8],
    pub header: Header,
    pub ghost is_read: { read_file bytes.now ≡ Ok header },
}
