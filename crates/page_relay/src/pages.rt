//! The values that pages are read into.

use crate::Shape;

/// A page: its families, in the order in which they stand.
#[derive(Drop)]
pub struct Page {
    pub families: Vec<Family>,
}

/// A family of a page. The help is the text that is meant, without escapes.
#[derive(Drop)]
pub struct Family {
    pub help: Option<String>,
    pub name: String,
    pub shape: Shape,
    pub rows: Vec<PageRow>,
}

/// A row of a page: its name, its labels as keys and values without escapes, and its value in billionths.
#[derive(Drop)]
pub struct PageRow {
    pub name: String,
    pub labels: Vec<(String, String)>,
    pub value: i128,
}
