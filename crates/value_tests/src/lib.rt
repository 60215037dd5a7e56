//! Tests of integers, registries, builders and values: worked examples, failed allocations, full
//! heaps, the memory that claimed lengths reserve, walks, large registries, and devices that fail.
#![tactic(auto)]

#[cfg(test)]
mod builder_memory;
#[cfg(test)]
mod devices;
#[cfg(test)]
mod expect;
#[cfg(test)]
mod full_heaps;
#[cfg(test)]
mod growth;
#[cfg(test)]
mod integers;
#[cfg(test)]
mod large_registries;
#[cfg(test)]
mod memory;
#[cfg(test)]
mod open_runs;
#[cfg(test)]
mod registries;
#[cfg(test)]
mod values;
#[cfg(test)]
mod walks;
