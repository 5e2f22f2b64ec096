// Leads: a hearing begun, frames heard into records, and the lead's end.
ghost use Rattle.std.specs.Prelude.{◌≡◌, [], ◌∷◌, pos};
ghost use Rattle.ear_bytes.specs.Ears.{ear_bytes, ear_in};
ghost use Rattle.ear_bytes.specs.Hearing.{fresh, end};
ghost use Rattle.abi.specs.Face.{returned};
ghost use Rattle.abi.specs.Stores.{kept_number};
ghost use Rattle.abi.specs.Leads.{heard, ear_left, records_left, used_left, ear_after_meant};

use crate::refusal::of_settings;

// 0, with a hearing at a lead's beginning in `ear`.
pub fn atc2_record_begin(ear: &mut [u8; 184]) -> i32
    ensures value { result ≡ pos 0 }
    ensures ear_after { ear.new ≡ ear_bytes fresh }
    ensures ear_after_2 { ear_in ear.new ≡ fresh }
{
    let begun = ear_bytes::fresh();
    let bytes = ear_bytes::ear_bytes(begun);
    *ear = bytes;
    0
}

// 0, with as many records of the lead's whole frames in `records` as have room, the hearing then in
// `ear`, and in `out` how many bytes of the lead are used and how many of records are written; the
// store's own refusal.
pub fn atc2_record(
    ear: &mut [u8; 184],
    store: &[u8; 1032],
    lead: &[u8],
    records: &mut [u8],
    out: &mut [u64; 2],
) -> i32
    ensures value { result ≡ returned kept_number (heard ear.old store.now lead.now records.old).answer }
    ensures ear_after { ear.new ≡ ear_left (heard ear.old store.now lead.now records.old) ear.old }
    ensures records_after { records.new ≡ records_left (heard ear.old store.now lead.now records.old) records.old }
    ensures out_after { out.new ≡ used_left (heard ear.old store.now lead.now records.old) out.old }
    ensures ear_after_2 { ear_in ear.new ≡ ear_after_meant (heard ear.old store.now lead.now records.old) (ear_in ear.old) }
{
    let held = state_bytes::store_in(store);
    match settings::at(held, 0) {
        Err(bad) => of_settings(bad),
        Ok(_) => {
            let lent = *ear;
            let from = ear_bytes::ear_in(&lent);
            let wrote = ear_bytes::hear(from, held, lead, records);
            let then = wrote.hearing;
            let bytes = ear_bytes::ear_bytes(then);
            *ear = bytes;
            *out = [wrote.frames as u64 * 16, wrote.bytes as u64];
            0
        }
    }
}

// 0, with as many records of the lead's end in `records` as have room, the hearing then in `ear`,
// and in `out` how many bytes of records are written.
pub fn atc2_record_end(ear: &mut [u8; 184], records: &mut [u8], out: &mut [u64; 1]) -> i32
    ensures value { result ≡ pos 0 }
    ensures ear_after { ear.new ≡ ear_bytes (end (ear_in ear.old) records.old).wrote.hearing }
    ensures records_after { records.new ≡ (end (ear_in ear.old) records.old).buffer }
    ensures out_after { out.new ≡ (end (ear_in ear.old) records.old).wrote.bytes ∷ [] }
    ensures ear_after_2 { ear_in ear.new ≡ (end (ear_in ear.old) records.old).wrote.hearing }
{
    let lent = *ear;
    let from = ear_bytes::ear_in(&lent);
    let wrote = ear_bytes::end(from, records);
    let then = wrote.hearing;
    let bytes = ear_bytes::ear_bytes(then);
    *ear = bytes;
    *out = [wrote.bytes as u64];
    0
}
