//! Tests of decoders, of JSON texts and of the command: allocations, reads and writes that fail,
//! heaps of fixed size, budgets, limits, large inputs, the bytes of single nodes, and words that no
//! row can hold.
#![tactic(auto)]

#[cfg(test)]
mod budgets;
#[cfg(test)]
mod command_limits;
#[cfg(test)]
mod command_words;
#[cfg(test)]
mod decoder_memory;
#[cfg(test)]
mod expect;
#[cfg(test)]
mod failing_devices;
#[cfg(test)]
mod forms;
#[cfg(test)]
mod heaps;
#[cfg(test)]
mod json;
#[cfg(test)]
mod large_inputs;
#[cfg(test)]
mod streams;
#[cfg(test)]
mod text_memory;
