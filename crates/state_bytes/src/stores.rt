// The figures of a store: place, gap, S and S* of its 32 versions, then the count.
ghost use Rattle.std.specs.Prelude.{◌≡◌, ℕ, ◌+◌, ◌*◌, ◌≤◌, ◌<◌, ◌/◌, ◌%◌, length, get_or};
ghost use Rattle.settings.specs.Store.{no_version};
ghost use Rattle.state_bytes.specs.Inside.{width_of};
ghost use Rattle.state_bytes.specs.Stores.{version_figure, figures_of, version_at, store_in};

use crate::figures::{figure_at, low8, low32};
use settings::{Store, Version};

// Figure k of a version's four.
fn version_figure(version: Version, k: usize) -> u64
    requires { k < 4 }
    ensures { (result ≡ version_figure version k) × (result < width_of k) }
{
    match k {
        0 => version.place as u64,
        1 => version.gap as u64,
        2 => version.s as u64,
        _ => version.t as u64,
    }
}

// The figures of a store of these versions and this count.
pub fn figures(versions: [Version; 32], count: usize) -> [u64; 129]
    ensures value { result ≡ figures_of versions count }
    ensures by_index { (j : ℕ) → j < 128 → version_figure (get_or versions (j / 4) no_version) (j % 4) < width_of (j % 4) }
    ensures versions_len { length versions ≡ 32 }
{
    let mut figures = [0u64; 129];
    for j in 0..128 {
        let version = versions[j / 4];
        figures[j] = version_figure(version, j % 4);
    }
    figures[128] = count as u64;
    figures
}

// Version i of the store in some bytes.
fn version_at(bytes: &[u8; 1032], i: usize) -> Version
    requires { i < 32 }
    ensures { result ≡ version_at bytes.now i }
{
    let at = 4 * i;
    Version {
        place: low32(figure_at(bytes, at)),
        gap: low32(figure_at(bytes, at + 1)),
        s: low8(figure_at(bytes, at + 2)),
        t: low8(figure_at(bytes, at + 3)),
    }
}

// The store in some bytes.
pub fn read(bytes: &[u8; 1032]) -> Store
    ensures { result ≡ store_in bytes.now }
{
    let nothing = Version {
        place: 0,
        gap: 0,
        s: 0,
        t: 0,
    };
    let mut versions = [nothing; 32];
    for i in 0..32 {
        versions[i] = version_at(bytes, i);
    }
    Store {
        versions,
        count: figure_at(bytes, 128) as usize,
    }
}
