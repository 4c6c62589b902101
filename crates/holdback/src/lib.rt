// Delivery with a holdback (the document's tray): lent bytes in which early ops wait for those that
// they rest on. The call takes any bytes, and a refused call changes nothing.
#![tactic(auto)]

mod delivering;
mod searching;

pub use delivering::deliver;
