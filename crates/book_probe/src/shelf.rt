//! The books that lines speak of.

use crate::fault::Fault;
use exclusive_book::ExclusiveBook;
use failover_session::FailoverSession;
use server_book::{Book, Settings};
use std::alloc::Global;

/// An end of the link: its server's settings, its talk, and the octets that it handed out.
#[derive(Drop)]
pub struct LinkEnd {
    pub settings: Settings,
    pub talk: FailoverSession,
    pub written: Vec<u8>,
}

/// A book and the letter that names it, and its end of the link, if it has one.
#[derive(Drop)]
pub struct Named {
    letter: u8,
    pub own: ExclusiveBook,
    pub end: Option<LinkEnd>,
}

/// The books that were begun.
#[derive(Drop)]
pub struct Shelf {
    books: Vec<Named>,
}

impl Shelf {
    pub fn new(alloc: Global) -> Shelf {
        Shelf {
            books: Vec::new(alloc),
        }
    }

    /// Where a book stands.
    fn place(&self, letter: u8) -> Option<usize> {
        for (place, named) in self.books.iter().enumerate() {
            if named.letter == letter {
                return Some(place);
            }
        }
        None
    }

    /// The book of a letter.
    pub fn book(&self, letter: u8) -> Result<&Book, Fault> {
        for named in self.books.iter() {
            if named.letter == letter {
                return Ok(&named.own.book);
            }
        }
        Err(Fault::NoBook)
    }

    /// The book of a letter, to be ordered something.
    pub fn book_mut(&mut self, letter: u8) -> Result<&mut Book, Fault> {
        Ok(&mut self.named_mut(letter)?.own.book)
    }

    /// What has a letter.
    pub fn named_mut(&mut self, letter: u8) -> Result<&mut Named, Fault> {
        let Some(place) = self.place(letter) else {
            return Err(Fault::NoBook);
        };
        self.books.get_mut(place).ok_or(Fault::NoBook)
    }

    /// Puts a book in its place, where one of its letter stood before.
    pub fn put(&mut self, alloc: Global, letter: u8, book: Book) -> Result<(), Fault> {
        let named = Named {
            letter,
            own: ExclusiveBook::new(alloc, book),
            end: None,
        };
        match self.place(letter) {
            Some(place) => {
                if place < self.books.len() {
                    self.books[place] = named;
                }
            }
            None => self.books.push(named)?,
        }
        Ok(())
    }
}
