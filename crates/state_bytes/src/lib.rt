// A store of settings as bytes that a caller lends and keeps, and figures as bytes for any other
// state: every figure is eight bytes, the highest first.
// Promises: what is made of a store reads back as that store; any bytes at all read as some store.
// Specification: specs/Figures.antt (figures and bytes), Stores.antt (the figures of a store, and
// the store in some bytes).
#![tactic(auto)]

ghost use Rattle.std.specs.Prelude.{◌≡◌};
ghost use Rattle.state_bytes.specs.Stores.{store_bytes, store_in};

mod figures;
mod stores;

pub use figures::{figure_at, low8, low16, low32, spread};
use settings::Store;

// A store as bytes.
pub fn store_bytes(store: Store) -> [u8; 1032]
    ensures value { result ≡ store_bytes store }
    ensures result_value { store_in result ≡ store }
{
    let versions = store.versions;
    let figures = stores::figures(versions, store.count);
    let mut bytes = [0u8; 1032];
    figures::spread(&figures, &mut bytes);
    bytes
}

// The store in some bytes; one that `begin` and `add` did not make has its own refusal.
pub fn store_in(bytes: &[u8; 1032]) -> Store
    ensures { result ≡ store_in bytes.now }
{
    stores::read(bytes)
}
