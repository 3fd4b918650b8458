//! Where the atomic steps are counted, from outside: those between a call of `begin_count` and the next of `end_count`.

#[inline(never)]
pub fn begin_count() {}

#[inline(never)]
pub fn end_count() {}
