//! Circular lists (`Links`) and tables of slots (`Table`), kept in arrays of the caller's. The slots of a table are
//! found by a hash and given up by age.
//!
//! # Lists
//!
//! A *place* is an index of two arrays; the caller chooses which places are heads of lists. `next` has the place
//! after each place, `previous` the one before it, and the last member leads back to its head.
//!
//! | To | Call |
//! |---|---|
//! | take all places out of their lists, before any other call | `clear` |
//! | append a place that is in no list; take one out | `push_back`; `remove` |
//! | walk through a list | `first` and `after`, or `members` |
//!
//! After `clear` the arrays agree (`AreInverse`), and each call keeps it so. Then each place is the head of one list,
//! without repetitions (`each_head_has_one_list`), and two heads share no member unless one is in the other's list
//! (`lists_are_apart`). In other arrays no call fails, and a walk returns at most as many places as there are.
//!
//! # Tables
//!
//! The caller has a slot for each place of a table, and chooses the bucket of a place by a hash of what its slot has.
//! There should be about as many buckets as places. `IsTable` says which places are free and which are in use, with
//! their buckets.
//!
//! | To | Call |
//! |---|---|
//! | get a place for something new | `take`: the first free place or, only if there is none, the one in use longest |
//! | keep a place longer | `renew`, which makes it the youngest |
//! | free a place | `release` |
//! | find a place by its hash | `chain`: the places in use of a bucket, the oldest first |
//!
//! `move_first` in `check_uses/src/lists.rt` is a caller, proved from these contracts. By the laws, the member that
//! it moves is neither a head nor in the other list.
#![tactic(auto)]

mod arrays;
mod links;
mod list_laws;
mod members;
mod moves;
mod table;
mod table_laws;

pub use links::Links;
pub use list_laws::{each_head_has_one_list, lists_are_apart};
pub use members::Members;
pub use table::{Table, Taken};
pub use table_laws::{each_place_is_free_or_in_one_chain, each_table_has_one_meaning};
