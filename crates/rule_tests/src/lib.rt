//! Tests of `fields`, `rules`, `bits` and `classify` through their public calls, of what no contract says and no line of a
//! session brings out: taps and devices, sets of numbers, the numbers of packets, what values hold of, the boxes of rules,
//! rules that are compared, copied and renamed, and classifiers after edits drawn by lot, beside plain lists. Every expected
//! value is the manual's. They have a crate of their own, so that these crates are proved once.
#![tactic(auto)]

#[cfg(test)]
mod boxes;
#[cfg(test)]
mod classifiers;
#[cfg(test)]
mod devices;
#[cfg(test)]
mod lines;
#[cfg(test)]
mod numbers;
#[cfg(test)]
mod packet;
#[cfg(test)]
mod parts;
#[cfg(test)]
mod text;
#[cfg(test)]
mod values;
