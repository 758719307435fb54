// The things that are live or waiting.
ghost use Rattle.std.specs.Prelude.{map, ◌≡◌, ◌<◌, ◌≤◌, ◌+◌, ◌-◌, ◌*◌, ◌++◌, ◌∷◌, [], ℕ, List, if◌then◌else◌, option_map, length, slice_index_or, slice_set, filter, Some, None, MatchOption, IfSome, IfOk};
ghost use Rattle.std.specs.List.{AllByRecursion, find};
ghost use Rattle.gfx_model.specs.Words.{greatest, place_of_handle};
ghost use Rattle.gfx_model.specs.Resources as model;
ghost use Rattle.gfx_model.specs.Resources.{Thing, is_at, has_name, is_kept_thing, texel_count};
ghost use Rattle.gfx_words.specs.Kinds.{kind_seen};
ghost use Rattle.resource_laws.specs.Bare.{bare};
ghost use Rattle.resource_book.specs.Names.{index_in, is_text};
ghost use Rattle.resource_book.specs.Seen.{fact_seen, row_seen, rows_seen};
ghost use Rattle.resource_book.specs.Tables.{IsPlaced, StandApart, IsOfKind, is_named, name_of, number_of, texels_of, place_count, most_texels};

use crate::names::Names;
use crate::rows::{Fact, Row};
use gfx_words::Kind;
use std::alloc::{AllocError, Global};
use std::marker::Model;

const PLACES: usize = 3_776;

/// The things in the order of their births, with the number of each by its place, and the live uniforms by their names.
#[derive(Drop)]
pub struct ThingTable {
    rows: Vec<Row>,
    // the number of the thing at each place
    numbers: Vec<Option<usize>>,
    // the live uniforms
    names: Names,
    // how many texels all textures have
    texels: u64,
}

impl Model for ThingTable {
    ghost use Rattle.std.specs.Prelude.{◌-◌, min, vec_len, vec_capacity};
    ghost use Rattle.resource_book.specs.Tables.{TableView, IsTable};
    ghost use Rattle.resource_book.specs.Seen.{rows_seen};

    ghost Value = { TableView };

    ghost view = { λ t. record { things = rows_seen t.rows.items; spare = min (vec_capacity t.rows - vec_len t.rows) t.names.spare } };

    ghost invariant = { λ t. IsTable t.numbers.items t.names.entries t.texels (rows_seen t.rows.items) };
}

fn refer_to(row: &mut Row)
    requires { row.old.references < 65535 }
    ensures { row_seen row.new ≡ model.with_references (λ n. n + 1) (row_seen row.old) }
{
    row.references += 1;
}

fn forget_one(row: &mut Row)
    requires { 1 < row.old.references }
    ensures { row_seen row.new ≡ model.with_references (λ n. n - 1) (row_seen row.old) }
{
    row.references -= 1;
}

// a new thing's name, if it has one, gets its index
fn note_name(names: &mut Names, name: Option<Vec<u8>>, index: u16)
    requires { 1 ≤ names.old.spare }
    ensures { (other : List ℕ) → index_in names.new.entries other ≡ (if is_text other (option_map (λ v. v.items) name) then Some index else index_in names.old.entries other) }
{
    if let Some(name) = name {
        names.insert(name, index);
    }
}

// the name of a thing that dies is no one's
fn forget_name(names: &mut Names, fact: &Fact)
    ensures { (other : List ℕ) → index_in names.new.entries other ≡ (if has_name other (fact_seen fact.now) then None else index_in names.old.entries other) }
{
    match fact {
        Fact::Uniform { kind: _, name } => names.remove(name),
        _ => {}
    }
}

fn kill(row: &mut Row, names: &mut Names, death: u32)
    requires { death ≤ 1073741823 }
    ensures row { row_seen row.new ≡ model.with_death death (row_seen row.old) }
    ensures names { (other : List ℕ) → index_in names.new.entries other ≡ (if has_name other (row_seen row.old).content then None else index_in names.old.entries other) }
{
    forget_name(names, &row.fact);
    row.death = Some(death);
}

fn keep_rows(rows: &mut Vec<Row>, latency: u8, frame: u32)
    ensures { rows_seen rows.new.items ≡ filter (is_kept_thing latency frame) (rows_seen rows.old.items) }
{
    rows.retain(|row| row.is_kept(latency, frame));
}

fn put_number(numbers: &mut Vec<Option<usize>>, row: &Row, number: usize)
    requires { length numbers.old.items ≡ place_count }
    ensures { numbers.new.items ≡ slice_set numbers.old.items (place_of_handle row.now.handle) (Some number) }
{
    let place = row.handle.place() as usize;
    numbers[place] = Some(number);
}

fn number_all(numbers: &mut Vec<Option<usize>>, rows: &[Row])
    requires many { length numbers.old.items ≡ place_count }
    requires apart { StandApart (rows_seen rows.now) }
    ensures { IsPlaced numbers.new.items (rows_seen rows.now) }
{
    numbers.fill(None);
    for i in 0..rows.len() {
        put_number(numbers, &rows[i], i);
    }
}

fn texels_of_row(row: &Row) -> u64
    ensures same { result ≡ texel_count (row_seen row.now).content }
    ensures most { result ≤ most_texels }
{
    match row.fact {
        Fact::Texture {
            format: _,
            width,
            height,
        } => width as u64 * height as u64,
        _ => 0,
    }
}

// the texels of one thing more; those of a few things cannot overflow
fn more_texels(texels: u64, row: &Row) -> u64
    requires { texels ≤ most_texels * place_count }
    ensures same { result ≡ texels + texel_count (row_seen row.now).content }
    ensures most { result ≤ texels + most_texels }
{
    texels + texels_of_row(row)
}

fn texels_in(rows: &[Row]) -> u64
    requires { length rows.now ≤ place_count }
    ensures sum { result ≡ texels_of (rows_seen rows.now) }
    ensures most { result ≤ most_texels * length rows.now }
{
    let mut texels = 0;
    for i in 0..rows.len() {
        texels = more_texels(texels, &rows[i]);
    }
    texels
}

impl ThingTable {
    /// There is nothing.
    pub fn new(alloc: Global) -> Result<ThingTable, AllocError>
        ensures { IfOk result (λ t. t.things ≡ []) }
    {
        let numbers = vec![in alloc; None; PLACES]?;
        Ok(ThingTable {
            rows: Vec::new(alloc),
            numbers,
            names: Names::new(alloc),
            texels: 0,
        })
    }

    /// The number of the thing at a kind's index, in the order of births.
    pub fn number_at(&self, kind: Kind, index: u16) -> Option<usize>
        requires { index < greatest (kind_seen kind) }
        ensures { MatchOption result
            (find (is_at (kind_seen kind) index) self.now.things ≡ None)
            (λ n. (n < length self.now.things) × ((d : Thing) → find (is_at (kind_seen kind) index) self.now.things ≡ Some (slice_index_or self.now.things n d))) }
    {
        self.first_at(kind, index)
    }

    /// The number of the first thing at a kind's index.
    pub fn first_at(&self, kind: Kind, index: u16) -> Option<usize>
        requires { index < greatest (kind_seen kind) }
        ensures { result ≡ number_of (is_at (kind_seen kind) index) self.now.things }
    {
        self.numbers[kind.first_place() as usize + index as usize]
    }

    /// The number of the live uniform of a name.
    pub fn named(&self, name: &[u8]) -> Option<usize>
        ensures { MatchOption result
            (find (is_named name.now) self.now.things ≡ None)
            (λ n. (n < length self.now.things) × ((d : Thing) → find (is_named name.now) self.now.things ≡ Some (slice_index_or self.now.things n d))) }
    {
        match self.names.get(name) {
            None => None,
            Some(index) => self.first_at(Kind::Uniform, index),
        }
    }

    /// The thing of a number.
    pub fn row(&self, number: usize) -> &Row
        requires { number < length self.now.things }
        ensures { (d : Thing) → row_seen result.now ≡ slice_index_or self.now.things number d }
    {
        &self.rows[number]
    }

    /// What every table keeps: no two things stand at one place, each is of its handle's kind, and it has no contents but
    /// what the calls ask of them.
    pub fn facts(&self)
        ensures bare { map bare self.now.things ≡ self.now.things }
        ensures apart { StandApart self.now.things }
        ensures kinds { AllByRecursion IsOfKind self.now.things }
    {
        let _ = &self.rows;
    }

    /// All things.
    pub fn rows(&self) -> &[Row]
        ensures { rows_seen result.now ≡ self.now.things }
    {
        &self.rows
    }

    /// How many texels all textures have.
    pub fn texels(&self) -> u64
        ensures { result ≡ texels_of self.now.things }
    {
        self.texels
    }

    /// Makes room for one thing more, with a name.
    pub fn reserve(&mut self) -> Result<(), AllocError>
        ensures things { self.new.things ≡ self.old.things }
        ensures room { IfOk result (λ _. 1 ≤ self.new.spare) }
    {
        self.names.reserve()?;
        self.rows.try_reserve(1)
    }

    /// Puts a new thing behind the others, with its name once more if it is a uniform. Nothing stands at its place, no live
    /// uniform has its name, and there is room.
    pub fn push(&mut self, row: Row, name: Option<Vec<u8>>)
        requires free { find (is_at row.handle.kind row.handle.index) self.old.things ≡ None }
        requires below { row.handle.index < greatest row.handle.kind }
        requires kind { IsOfKind (row_seen row) }
        requires lives { row.death ≡ None }
        requires name { option_map (λ v. v.items) name ≡ name_of (row_seen row).content }
        requires unused { IfSome name (λ v. find (is_named v.items) self.old.things ≡ None) }
        requires room { 1 ≤ self.old.spare }
        requires few { length self.old.things ≤ place_count }
        ensures things { self.new.things ≡ self.old.things ++ row_seen row ∷ [] }
        ensures bare { map bare self.new.things ≡ self.new.things }
    {
        let place = row.handle.place() as usize;
        let index = row.handle.index();
        self.numbers[place] = Some(self.rows.len());
        note_name(&mut self.names, name, index);
        let texels = more_texels(self.texels, &row);
        self.texels = texels;
        self.rows.push_reserved(row);
    }

    /// One reference more of a thing.
    pub fn refer(&mut self, number: usize)
        requires within { number < length self.old.things }
        requires few { (d : Thing) → (slice_index_or self.old.things number d).references < 65535 }
        ensures things { (d : Thing) → self.new.things ≡ slice_set self.old.things number (model.with_references (λ n. n + 1) (slice_index_or self.old.things number d)) }
        ensures bare { map bare self.new.things ≡ self.new.things }
    {
        refer_to(&mut self.rows[number]);
    }

    /// One reference less.
    pub fn forget(&mut self, number: usize)
        requires within { number < length self.old.things }
        requires some { (d : Thing) → 1 < (slice_index_or self.old.things number d).references }
        ensures things { (d : Thing) → self.new.things ≡ slice_set self.old.things number (model.with_references (λ n. n - 1) (slice_index_or self.old.things number d)) }
        ensures bare { map bare self.new.things ≡ self.new.things }
    {
        forget_one(&mut self.rows[number]);
    }

    /// A live thing dies in a frame.
    pub fn kill(&mut self, number: usize, death: u32)
        requires within { number < length self.old.things }
        requires lives { (d : Thing) → (slice_index_or self.old.things number d).death ≡ None }
        requires frame { death ≤ 1073741823 }
        ensures things { (d : Thing) → self.new.things ≡ slice_set self.old.things number (model.with_death death (slice_index_or self.old.things number d)) }
        ensures bare { map bare self.new.things ≡ self.new.things }
    {
        kill(&mut self.rows[number], &mut self.names, death);
    }

    /// The start of a frame keeps what lives, and what may still be named.
    pub fn start_frame(&mut self, latency: u8, frame: u32)
        requires { length self.old.things ≤ place_count }
        ensures { self.new.things ≡ filter (is_kept_thing latency frame) self.old.things }
    {
        keep_rows(&mut self.rows, latency, frame);
        number_all(&mut self.numbers, &self.rows);
        let texels = texels_in(&self.rows);
        self.texels = texels;
    }
}
