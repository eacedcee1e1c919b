//! What a node does with a book that its threads share: workers answer at mailboxes in memory, its end of the link talks
//! over wires in memory, passes are handed out and come back, and a person is told what goes wrong. Inputs and answers come
//! from outside; there is no socket and no clock.
#![tactic(auto)]

#[cfg(test)]
mod answers;
#[cfg(test)]
mod books;
#[cfg(test)]
mod cases;
#[cfg(test)]
mod closed_books;
#[cfg(test)]
mod ends;
#[cfg(test)]
mod frames;
#[cfg(test)]
mod full_books;
#[cfg(test)]
mod full_heads;
#[cfg(test)]
mod node_settings;
#[cfg(test)]
mod noted;
#[cfg(test)]
mod notice_books;
#[cfg(test)]
mod passes;
#[cfg(test)]
mod posts;
#[cfg(test)]
mod quiet_wires;
#[cfg(test)]
mod requests;
#[cfg(test)]
mod talk_notices;
#[cfg(test)]
mod threads;
#[cfg(test)]
mod wires;
