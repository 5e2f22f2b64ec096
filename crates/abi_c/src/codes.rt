// The two codes: a word read, a figure written.
ghost use Rattle.std.specs.Prelude.{◌≡◌};
ghost use Rattle.words.specs.Why.{numbered};
ghost use Rattle.words.specs.Code.{read_short, write_short, read_long, write_long};
ghost use Rattle.abi.specs.Face.{returned, itself};

// The figure of a received short word, or -1.
#[unsafe(no_mangle)]
pub extern "C" fn atc2_read_short(word: u8) -> i32
    ensures { result ≡ returned itself (numbered (read_short word)) }
{
    abi::codes::atc2_read_short(word)
}

// The short word to send for a figure, or -2.
#[unsafe(no_mangle)]
pub extern "C" fn atc2_write_short(figure: u8) -> i32
    ensures { result ≡ returned itself (write_short figure) }
{
    abi::codes::atc2_write_short(figure)
}

// The figure of a received long word, or -1.
#[unsafe(no_mangle)]
pub extern "C" fn atc2_read_long(word: u16) -> i32
    ensures { result ≡ returned itself (numbered (read_long word)) }
{
    abi::codes::atc2_read_long(word)
}

// The long word to send for a figure, or -2.
#[unsafe(no_mangle)]
pub extern "C" fn atc2_write_long(figure: u16) -> i32
    ensures { result ≡ returned itself (write_long figure) }
{
    abi::codes::atc2_write_long(figure)
}
