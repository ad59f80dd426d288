//! One test for each kind of refusal, over all forms of parts.

pub mod bad_give;
pub mod gone;
pub mod hidden;
pub mod needs_consume;
pub mod not_allowed_through;
pub mod permission_too_weak;
pub mod unknown_name;
pub mod wrong_kind;
