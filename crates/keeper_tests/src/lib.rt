// What both keepers do on examples: every check is generic, and is run on each keeper.
#![tactic(auto)]

#[cfg(test)]
mod edges;
#[cfg(test)]
mod levels;
#[cfg(test)]
mod pair;
#[cfg(test)]
mod short;
#[cfg(test)]
mod tests;
