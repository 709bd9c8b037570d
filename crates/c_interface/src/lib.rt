// The answers for programs in other languages: a static library of C functions over `clocks::answers::ask` and over one exploration for all
// positions. `include/pushkhami.h` declares them, and says what a caller owes: nothing here can test it.
#![tactic(auto)]

pub mod exploring;
pub mod exports;
pub mod replies;
#[cfg(test)]
mod tests;
