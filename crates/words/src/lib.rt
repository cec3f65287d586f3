// The words of a file of bytes, and its parts; and words put into a buffer.
#![tactic(auto)]

pub mod put;

ghost use Rattle.std.specs.Prelude.{◌≡◌, ◌+◌, ◌^◌, ◌<◌};
ghost use Rattle.words.specs.Words.{word, word_count, part, wrong_length};

// The word at index i, least byte first. Four byte reads in a row compile to one load.
#[tactic(auto, unfolding(crate::specs::Words::word))]
pub fn word(file: &[u8], i: usize) -> usize
    requires { i < word_count file.now }
    ensures value { result ≡ word file.now i }
    ensures upper_bound { result < 2 ^ 32 }
{
    let at = 4 * i;
    u32::from_le_bytes([file[at], file[at + 1], file[at + 2], file[at + 3]]) as usize
}

// The part of the file that holds the k words from index i on; empty where they would leave the file.
#[tactic(auto, unfolding(crate::specs::Words::part))]
pub fn part(file: &[u8], i: usize, k: usize) -> &[u8]
    ensures result_value { result.now ≡ part file.now i k }
{
    let count = file.len() / 4;
    if count < i || count - i < k {
        return &[];
    }
    let from = 4 * i;
    let to = from + 4 * k;
    &file[from..to]
}

// Whether the length is not a multiple of 4, under the least or over the most.
#[tactic(auto, unfolding(crate::specs::Words::wrong_length))]
pub fn has_wrong_length(file: &[u8], least: usize, most: usize) -> bool
    ensures value { result ≡ wrong_length least most file.now }
{
    let length = file.len();
    length % 4 != 0 || length < least || most < length
}
