// The edges of document 01 for telegrams and contacts, and of document 02 for a contact under a
// store: what was asked, and what came.
// Promises: it is safe and it ends; what it writes is compared with the file stdout beside it.
// Specification: none of its own; document 01's "Edges for tests" and document 02's rule of the
// settings, worked out by hand.
#![tactic(auto)]

mod contacts;
mod judgements;
mod say;
mod stores;
mod telegrams;

fn main(rt: HostRuntime) {
    telegrams::pairs(&rt);
    telegrams::stretches(&rt);
    telegrams::in_turn(&rt);
    contacts::records(&rt);
    judgements::markers(&rt);
    judgements::places(&rt);
    contacts::whole_lines(&rt);
    stores::odometers(&rt);
    stores::refused_stores(&rt);
}
