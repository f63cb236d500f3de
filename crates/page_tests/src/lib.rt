//! Tests of pages that `publisher` puts together of scripts and resources, which are proved apart from it.
#![tactic(auto)]

#[cfg(test)]
mod depths;
#[cfg(test)]
mod inclusions;
#[cfg(test)]
mod limits;
#[cfg(test)]
mod scripts;
#[cfg(test)]
mod site;
