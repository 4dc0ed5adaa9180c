// Examples that are run: single steps, images and their pages, refusals with their places, texts, and the parts by themselves and below a machine.
#![tactic(auto)]

#[cfg(test)]
mod counting;
#[cfg(test)]
mod images;
#[cfg(test)]
mod imaging;
#[cfg(test)]
mod joins;
#[cfg(test)]
mod modes;
#[cfg(test)]
mod quick;
#[cfg(test)]
mod sizes;
#[cfg(test)]
mod steps;
#[cfg(test)]
mod texts;
