// Why a word, or three, are refused, as one number.
ghost use Rattle.std.specs.Prelude.{◌≡◌, pos};
ghost use Rattle.telegram.specs.Telegram.{telegram};
ghost use Rattle.abi.specs.Face.{why_number, word_read, word_number};

// 0 if the three received words read, else why not.
#[unsafe(no_mangle)]
pub extern "C" fn atc2_why_telegram(x: u8, y: u8, z: u8) -> i32
    ensures { result ≡ pos (why_number (telegram x y z)) }
{
    abi::why::atc2_why_telegram(x, y, z)
}

// 0 if a received word reads, the long one or, where `wide` is 0, the short one in its low byte;
// else why not.
#[unsafe(no_mangle)]
pub extern "C" fn atc2_why_word(word: u16, wide: u8) -> i32
    ensures { result ≡ pos (word_number (word_read word wide)) }
{
    abi::why::atc2_why_word(word, wide)
}
