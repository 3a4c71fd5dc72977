// Theorems only: survival, its marks and which of two results counts are in specs/, what is proved of them in proofs/. What a survival is rounded by stands here.
#![tactic(auto)]

// 10¹⁶ times a fraction, rounded down and up.
#[derive(Clone, Copy)]
pub struct Multiple {
    pub down: u64,
    pub up: u64,
}
