//! Tests of calls of `cache_files`, `stat_files`, `docroot_format` and `invalidation`, which are proved apart from them.
#![tactic(auto)]

#[cfg(test)]
mod disks;
#[cfg(test)]
mod file_roles;
#[cfg(test)]
mod flushes;
#[cfg(test)]
mod pages;
#[cfg(test)]
mod sessions;
#[cfg(test)]
mod stamps;
