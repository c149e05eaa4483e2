// Tests of the parts, of the writing of blocks and of what is written to them, as they stand to one another.
// Expected values are from the documents or worked out by hand. There is no other code here.
#![tactic(auto)]

#[cfg(test)]
mod asking;
#[cfg(test)]
mod blocks;
#[cfg(test)]
mod board;
#[cfg(test)]
mod cards;
#[cfg(test)]
mod chip;
#[cfg(test)]
mod commits;
#[cfg(test)]
mod counts;
#[cfg(test)]
mod files;
#[cfg(test)]
mod sweep;
