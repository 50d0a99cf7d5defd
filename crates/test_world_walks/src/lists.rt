//! What stands in a world, for walks over it.

use crate::laws::{Law, add};
use bl_page::{Anchor, Dead, Leaf, Page};
use bl_world::Owner;
use std::alloc::Global;

/// Pages and their owners.
#[derive(Drop)]
pub struct Lists {
    pub pages: Vec<Page>,
    pub owners: Vec<Owner>,
}

impl Lists {
    /// These pages, of which 0 and 1 are open, and nobody uses the others.
    pub fn new(alloc: Global, pages: Vec<Page>) -> Result<Lists, Law> {
        let mut owners = Vec::new(alloc);
        for at in 0..pages.len() {
            let owner = if at < 2 { Owner::Open } else { Owner::Released };
            add(&mut owners, owner)?;
        }
        Ok(Lists { pages, owners })
    }

    pub fn page(&self, at: u32) -> Result<Page, Law> {
        match self.pages.as_slice().get(at as usize) {
            Some(page) => Ok(page.copied()),
            None => Err("a page that is got is there"),
        }
    }

    pub fn put(&mut self, at: u32, page: Page) -> Result<(), Law> {
        let Some(place) = self.pages.as_mut_slice().get_mut(at as usize) else {
            return Err("a page that is put is there");
        };
        *place = page;
        Ok(())
    }

    /// The page of the index's levels.
    pub fn anchor(&self) -> Result<&Anchor, Law> {
        match self.pages.as_slice().first() {
            Some(Page::Anchor(anchor)) => Ok(anchor),
            _ => Err("page 0 is the anchor"),
        }
    }

    /// That page, if it is a leaf.
    pub fn leaf(&self, at: u32) -> Option<&Leaf> {
        match self.pages.as_slice().get(at as usize) {
            Some(Page::Leaf(leaf)) => Some(leaf),
            _ => None,
        }
    }

    /// That page, if it is dead.
    pub fn dead(&self, at: u32) -> Option<&Dead> {
        match self.pages.as_slice().get(at as usize) {
            Some(Page::Dead(dead)) => Some(dead),
            _ => None,
        }
    }

    pub fn owner(&self, at: u32) -> Result<Owner, Law> {
        let owner = self.owners.as_slice().get(at as usize).copied();
        owner.ok_or("a page that has an owner is there")
    }

    pub fn own(&mut self, at: u32, owner: Owner) -> Result<(), Law> {
        let Some(place) = self.owners.as_mut_slice().get_mut(at as usize) else {
            return Err("a page that has an owner is there");
        };
        *place = owner;
        Ok(())
    }
}
