// The bytes of a frame that is not whole yet.
ghost use Rattle.std.specs.Prelude.{◌≡◌, ◌≤◌, length, take, drop};

// The `count` bytes from `from` on, if the block has them, moved to its front; how many they are.
pub fn carry(block: &mut [u8], from: usize, count: usize) -> usize
    ensures { (result ≤ length block.old) × (take result block.new ≡ take result (drop from block.old)) }
{
    if from > block.len() {
        return 0;
    }
    if count > block.len() - from {
        return 0;
    }
    block.copy_within(from..from + count, 0);
    count
}
