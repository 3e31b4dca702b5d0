//! The calls of layers: what neither a contract nor a row of the program over a real folder shows.
#![tactic(auto)]

#[cfg(test)]
mod chunks;
#[cfg(test)]
mod edges;
#[cfg(test)]
mod folders;
#[cfg(test)]
mod real_files;
#[cfg(test)]
mod texts;
#[cfg(test)]
mod watched;
#[cfg(test)]
mod writers;
