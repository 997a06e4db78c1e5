//! Calls that no command makes, each once with ample memory, and ends that fail in mid-stream: the tokens of a text, expressions and
//! attributes alone, the places of a unit, paths with their texts, names, the bodies of units and their control, a table of locks,
//! schedules, choosers and watchers, the lines of events, how threads begin, what a unit in the profile tells, what walks bring to the
//! points of its functions, the rules that fail there, and what the lines of warnings and of held sets say. What commands show stands in
//! the data of the program `cases`.
#![tactic(auto)]

#[cfg(test)]
mod bodies;
#[cfg(test)]
mod ends;
#[cfg(test)]
mod flows;
#[cfg(test)]
mod graphs;
#[cfg(test)]
mod lines;
#[cfg(test)]
mod locks;
#[cfg(test)]
mod nodes;
#[cfg(test)]
mod objects;
#[cfg(test)]
mod paths;
#[cfg(test)]
mod places;
#[cfg(test)]
mod profile;
#[cfg(test)]
mod schedules;
#[cfg(test)]
mod starts;
#[cfg(test)]
mod texts;
#[cfg(test)]
mod traces;
#[cfg(test)]
mod units;
