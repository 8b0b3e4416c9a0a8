// Refusals in words, for C.
ghost use Rattle.text.specs.Page.{Puts};
ghost use Rattle.refusal_words.specs.Words.{sentence};

// What a refusal number means, and what a person does next, at the start of the buffer; the answer is how many bytes that are.
#[unsafe(no_mangle)]
pub extern "C" fn zundrafl_sentence(number: u64, out: &mut [u8]) -> usize
    ensures { Puts out 0 result (sentence number) }
{
    refusal_words::put_sentence(out, 0, number)
}
