// The sync pair: the ones of S xor S*, counted by the language's own operation.
ghost use Rattle.std.specs.Prelude.{◌≡◌};
ghost use Rattle.telegram.specs.Sync.{is_good};

// Whether s and t differ in seven of their eight bits.
pub fn is_good(s: u8, t: u8) -> bool
    ensures { result ≡ is_good s t }
{
    u8::count_ones(s ^ t) == 7
}
