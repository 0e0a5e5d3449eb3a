//! Which orders hold a variable back: those whose second wire it is, while their first wire has not changed.

use crate::Order;
use crate::tables::{is_marked, number_at, set_number};
use hz_core::Memory;
use std::alloc::Global;

/// The orders, and the lists of those that have a variable as their first wire, or as their second. Orders are numbered from 1 on.
#[derive(Drop)]
pub(crate) struct Holding<'a> {
    orders: &'a [Order],
    firsts: Lists,
    seconds: Lists,
}

/// Lists of numbers from 1 on, each number in one list: the head of each list, and what stands behind each number. A list ends with 0.
#[derive(Drop)]
struct Lists {
    heads: Vec<u32>,
    behind: Vec<u32>,
    numbers: u32,
}

impl<'a> Holding<'a> {
    /// The lists of orders, for so many variables.
    pub(crate) fn new(
        alloc: Global,
        variables: u32,
        orders: &'a [Order],
    ) -> Result<Holding<'a>, Memory> {
        let mut holding = Holding {
            orders,
            firsts: Lists::new(alloc, variables)?,
            seconds: Lists::new(alloc, variables)?,
        };
        for order in orders {
            holding.firsts.push(order.first)?;
            holding.seconds.push(order.second)?;
        }
        Ok(holding)
    }

    /// Whether no order holds a variable where variables have changed so often, but for orders whose first wire is marked.
    pub(crate) fn is_free(&self, var: u32, counts: &[u32], marks: &[bool]) -> bool {
        let mut number = self.seconds.head(var);
        for _ in 0..self.orders.len() {
            if self.is_held(number, counts, marks) {
                return false;
            }
            number = self.seconds.behind(number);
        }
        true
    }

    // Whether an order holds its second wire, and its first wire is not marked.
    fn is_held(&self, number: u32, counts: &[u32], marks: &[bool]) -> bool {
        match self.orders.get(number.wrapping_sub(1) as usize) {
            Some(order) => {
                u64::from(number_at(counts, order.second)) + 1 >= order.nth
                    && number_at(counts, order.first) == 0
                    && !is_marked(marks, order.first)
            }
            None => false,
        }
    }

    /// Adds the second wires of the orders that have a variable as their first wire.
    pub(crate) fn add_seconds(&self, var: u32, list: &mut Vec<u32>) -> Result<(), Memory> {
        let mut number = self.firsts.head(var);
        for _ in 0..self.orders.len() {
            if let Some(order) = self.orders.get(number.wrapping_sub(1) as usize) {
                list.push(order.second)?;
            } else {
                break;
            }
            number = self.firsts.behind(number);
        }
        Ok(())
    }
}

impl Lists {
    fn new(alloc: Global, lists: u32) -> Result<Lists, Memory> {
        Ok(Lists {
            heads: vec![in alloc; 0; lists as usize]?,
            behind: Vec::new(alloc),
            numbers: 0,
        })
    }

    // Puts the next number before a list.
    fn push(&mut self, list: u32) -> Result<(), Memory> {
        self.behind.push(number_at(self.heads.as_slice(), list))?;
        self.numbers = self.numbers.saturating_add(1);
        set_number(self.heads.as_mut_slice(), list, self.numbers);
        Ok(())
    }

    // The first number of a list, or 0.
    fn head(&self, list: u32) -> u32 {
        number_at(self.heads.as_slice(), list)
    }

    // The number behind another one, or 0.
    fn behind(&self, number: u32) -> u32 {
        number_at(self.behind.as_slice(), number.wrapping_sub(1))
    }
}
