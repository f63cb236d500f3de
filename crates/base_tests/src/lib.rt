//! Tests of calls of `sp_base` and `sp_outside`, which are proved apart from these crates.
#![tactic(auto)]

#[cfg(test)]
mod folder_disk;
#[cfg(test)]
mod mem_disk;
#[cfg(test)]
mod real_disk;
#[cfg(test)]
mod real_docroot;
#[cfg(test)]
mod streams;
#[cfg(test)]
mod values;
#[cfg(test)]
mod words;
