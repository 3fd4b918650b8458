//! The law of rises, at a rule.
use stm_model::rule::AnyMem;
use work_worker::laws::turns_cover;

#[test]
fn holds_for_any_memory() {
    turns_cover(&AnyMem);
}
