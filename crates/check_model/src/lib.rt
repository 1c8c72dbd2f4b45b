//! What a report prints, and what a check of it answers: histories that are legal block by block, and
//! transcripts that are right item by item. There is no code but the law that there is one answer:
//! contracts cite `specs/`, and proofs cite `proofs/`.
#![tactic(auto)]

mod checked;
mod laws;
mod printed;

pub use block_laws as blocks;
pub use caller_slots as slots;
pub use caller_slots::shown as shown;
pub use checked::Checked;
pub use laws::one_answer;
pub use printed::Printed;
