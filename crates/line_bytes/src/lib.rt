// A test of all the bytes of a line of a table file.
#![tactic(auto)]

ghost use Rattle.std.specs.Prelude.{◌≡◌};
ghost use Rattle.table_bytes.specs.Bytes.{passes};
ghost use Rattle.line_bytes.specs.Everywhere.{everywhere};

use table_bytes::ByteKind;

// All of the bytes are what is asked of them.
pub fn all_pass(bytes: &[u8], kind: ByteKind) -> bool
    ensures { result ≡ everywhere (passes kind) bytes.now }
{
    bytes.iter().all(|b| table_bytes::passes_as(kind, *b))
}
