//! Sessions and dumps of the program over a folder in memory, whose disk fails as planned and which can crash.
#![tactic(auto)]

#[cfg(test)]
mod disk;
#[cfg(test)]
mod sessions;
