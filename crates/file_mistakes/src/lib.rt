// Which mistake a table file looks like whose first line is not `B` alone, and what the mistake is, in words.
#![tactic(auto)]

ghost use Rattle.std.specs.Prelude.{◌≡◌, get_or};
ghost use Rattle.text.specs.Page.{Puts};
ghost use Rattle.file_mistakes.specs.Mistakes.{number_of, mistake_of, looks_like, mistake_phrase};

// The byte at an offset; 0 past the end.
pub fn byte_at(file: &[u8], i: usize) -> u8
    ensures { result ≡ get_or file.now i 0 }
{
    file.get(i).copied().unwrap_or(0)
}

// A mistake, and its number.
#[derive(Clone, Copy)]
enum Mistake {
    Empty = 1,
    OrderMark = 2,
    Wide = 3,
    Small = 4,
    Other = 5,
}

// The mistake of a file that begins with these bytes.
#[tactic(auto, unfolding(crate::specs::Mistakes::mistake_of))]
fn mistake_of(a: u8, b: u8, c: u8) -> Mistake
    ensures { number_of result ≡ mistake_of a b c }
{
    match (a, b, c) {
        (0xEF, 0xBB, 0xBF) => Mistake::OrderMark,
        (0xFF, 0xFE, _) | (0xFE, 0xFF, _) => Mistake::Wide,
        (b'b', b'\n' | b'\r' | 0, _) => Mistake::Small,
        _ => Mistake::Other,
    }
}

// Which mistake a file looks like whose first line is not `B` alone: 1 to 5, the number that put_mistake takes.
pub fn looks_like(file: &[u8]) -> u64
    ensures { result ≡ looks_like file.now }
{
    let mistake = if file.is_empty() {
        Mistake::Empty
    } else {
        mistake_of(byte_at(file, 0), byte_at(file, 1), byte_at(file, 2))
    };
    mistake as u64
}

// What a mistake is; nothing for a number that no mistake has. It takes no Mistake, since the clause holds of every number.
pub fn put_mistake(out: &mut [u8], at: usize, mistake: u64) -> usize
    ensures { Puts out at result (mistake_phrase mistake) }
{
    refusal_words::put_line(
        out,
        at,
        b"
the file is empty
the file begins with a byte-order mark
the file looks like UTF-16
it is a small b
the file looks like another format",
        mistake,
    )
}
