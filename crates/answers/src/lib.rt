// The answers of either search: through zones, and where these do not fit, through regions.
#![tactic(auto)]

pub mod by_zones;
pub mod either;
