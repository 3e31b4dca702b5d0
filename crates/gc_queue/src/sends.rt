//! The ends may go to other threads, where the files in the events may.

use crate::ends::{Hearer, Joined, Teller};
use hr_base::Named;

fn goes_to_a_thread<T: Send>(_it: &T) {}

/// A teller may go to another thread.
pub fn teller_goes<File: Named + Send>(teller: &Teller<File>) {
    goes_to_a_thread(teller);
}

/// So may a hearer.
pub fn hearer_goes<File: Named + Send>(hearer: &Hearer<File>) {
    goes_to_a_thread(hearer);
}

/// And both together.
pub fn joined_goes<File: Named + Send>(joined: &Joined<File>) {
    goes_to_a_thread(joined);
}
