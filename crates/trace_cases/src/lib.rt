// Cases of reading and writing trace files: some shown of the definitions, the others run.
#![tactic(auto)]

#[cfg(test)]
mod all;
#[cfg(test)]
mod answers;
#[cfg(test)]
mod closes;
#[cfg(test)]
mod cuts;
#[cfg(test)]
mod edits;
#[cfg(test)]
mod files;
#[cfg(test)]
mod identifiers;
#[cfg(test)]
mod many;
#[cfg(test)]
mod many_puts;
#[cfg(test)]
mod puts;
#[cfg(test)]
mod reads;
#[cfg(test)]
mod sample;
pub mod shown;
#[cfg(test)]
mod space;
#[cfg(test)]
mod tidies;
pub mod uses;
#[cfg(test)]
mod writers;
