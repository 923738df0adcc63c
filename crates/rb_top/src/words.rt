ghost use Rattle.std.specs.Prelude.{◌≡◌, true, false};
ghost use Rattle.rb_top.specs.Program.{are_run, are_read};

use rb_base::Bytes;

/// Returns whether the words after the program's name are the one word `run`. Then they are not the
/// one word `read`.
pub fn are_run_words(words: &[Bytes]) -> bool
    ensures value { result ≡ are_run words.now }
    ensures other { are_run words.now ≡ true → are_read words.now ≡ false }
{
    match words {
        [word] => word.as_slice() == b"run".as_slice(),
        _ => false,
    }
}

/// Returns whether the words after the program's name are the one word `read`.
pub fn are_read_words(words: &[Bytes]) -> bool
    ensures { result ≡ are_read words.now }
{
    match words {
        [word] => word.as_slice() == b"read".as_slice(),
        _ => false,
    }
}
