//! Tests of the space book and of the cache.
#![tactic(auto)]

#[cfg(test)]
mod book;
#[cfg(test)]
mod cache;
#[cfg(test)]
mod calls;
#[cfg(test)]
mod many;
#[cfg(test)]
mod names;
#[cfg(test)]
mod plain;
#[cfg(test)]
mod shelf;
