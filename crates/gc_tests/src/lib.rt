//! The tests of the queue of events and of the plain ledger: what neither a contract nor a row of the program shows.
#![tactic(auto)]

#[cfg(test)]
mod drawn;
#[cfg(test)]
mod events;
#[cfg(test)]
mod expecting;
#[cfg(test)]
mod plain;
#[cfg(test)]
mod queue;
#[cfg(test)]
mod queues;
#[cfg(test)]
mod sessions;
