// Records of eight bytes, taken out of a trace and put into it.
ghost use Rattle.std.specs.Prelude.{◌≡◌, ◌+◌, ◌≤◌, length, take, drop};
ghost use Rattle.text.specs.Put.{placed};

// The eight bytes of a trace from this one on.
pub fn eight(trace: &[u8], at: usize) -> [u8; 8]
    requires { at + 8 ≤ length trace.now }
    ensures { result ≡ take 8 (drop at trace.now) }
{
    [
        trace[at],
        trace[at + 1],
        trace[at + 2],
        trace[at + 3],
        trace[at + 4],
        trace[at + 5],
        trace[at + 6],
        trace[at + 7],
    ]
}

// Eight bytes into a trace from this one on.
pub fn put_eight(bytes: [u8; 8], trace: &mut [u8], at: usize)
    requires { at + 8 ≤ length trace.old }
    ensures bytes_len { length bytes ≡ 8 }
    ensures trace_after { trace.new ≡ placed bytes trace.old at }
{
    trace[at..at + 8].copy_from_slice(&bytes);
}
