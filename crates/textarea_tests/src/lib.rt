//! Tests of the text area and of scripts that can't be written as worked cases.
#![tactic(auto)]

#[cfg(test)]
mod broken;
#[cfg(test)]
mod fragment_copies;
#[cfg(test)]
mod many_lines;
#[cfg(test)]
mod quick_start;
#[cfg(test)]
mod served;
#[cfg(test)]
mod streams;
#[cfg(test)]
mod texts;
#[cfg(test)]
mod trial;
#[cfg(test)]
mod wrapped_lines;
