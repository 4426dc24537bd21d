//! Tests of the parts, over their public items.
#![tactic(auto)]

#[cfg(test)]
mod control;
#[cfg(test)]
mod histogram;
#[cfg(test)]
mod mail;
#[cfg(test)]
mod merge;
#[cfg(test)]
mod merger;
#[cfg(test)]
mod notify;
#[cfg(test)]
mod ready;
#[cfg(test)]
mod refills;
#[cfg(test)]
mod release;
#[cfg(test)]
mod script;
#[cfg(test)]
mod ticks;
