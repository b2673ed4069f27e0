ghost use Rattle.std.specs.Prelude.{◌≡◌, ◌≤◌, ◌&&◌, true, false, not, map, codes, MatchOption};
ghost use Rattle.std.specs.Str.{bytes_eq};
ghost use Rattle.mr_model.specs.Code.{most_symbols};
ghost use Rattle.mr_form.specs.MatrixText.{are_ones, are_prices, is_price, is_price_line, number_in, prices_of, words};

use arrayvec::ArrayVec;
use mr_bits::{GREATEST_PRICE, MOST_SYMBOLS};
use mr_text::{read_number, split_at_byte};

/// The prices of the devices of a matrix, upwards.
pub type Prices = ArrayVec<u32, MOST_SYMBOLS>;

/// Whether each price is 1.
pub fn are_ones(prices: &[u32]) -> bool
    ensures { result ≡ are_ones prices.now }
{
    prices.iter().all(|price| *price == 1)
}

/// The prices on the line `price` of so many devices, or None where it is no such line.
pub fn read_prices(line: &[u8], devices: u32) -> Option<Prices>
    requires some { 1 ≤ devices }
    requires few { devices ≤ most_symbols }
    ensures { MatchOption result (is_price_line devices line.now ≡ false)
        (λ prices. (is_price_line devices line.now ≡ true) × (prices.items ≡ prices_of line.now)) }
{
    let (name, numbers) = split_at_byte(line, b' ')?;
    let prices = price_list(numbers, devices)?;
    if is_told(name, &prices) {
        Some(prices)
    } else {
        None
    }
}

/// Whether the word is `price`, and one of the prices is not 1.
fn is_told(name: &[u8], prices: &[u32]) -> bool
    ensures { result ≡ (bytes_eq name.now (codes "price") && not (are_ones prices.now)) }
{
    name == b"price".as_slice() && !are_ones(prices)
}

/// Exactly so many prices, by single spaces.
fn price_list(numbers: &[u8], devices: u32) -> Option<Prices>
    requires some { 1 ≤ devices }
    requires few { devices ≤ most_symbols }
    ensures { MatchOption result (are_prices devices (map number_in (words numbers.now)) ≡ false)
        (λ prices. (are_prices devices (map number_in (words numbers.now)) ≡ true)
        × (prices.items ≡ map number_in (words numbers.now))) }
{
    let mut prices = Prices::new();
    let mut left = numbers;
    for _ in 1..devices {
        let (word, rest) = split_at_byte(left, b' ')?;
        let price = read_price(word)?;
        prices.push(price);
        left = rest;
    }
    let last = read_price(left)?;
    prices.push(last);
    Some(prices)
}

/// The price that a word spells.
fn read_price(word: &[u8]) -> Option<u32>
    ensures { MatchOption result (is_price (number_in word.now) ≡ false)
        (λ price. (is_price (number_in word.now) ≡ true) × (price ≡ number_in word.now)) }
{
    let number = read_number(word)?;
    if is_price(number) { Some(number) } else { None }
}

/// Whether a number is from 1 to the greatest price.
fn is_price(number: u32) -> bool
    ensures { result ≡ is_price number }
{
    number >= 1 && number <= GREATEST_PRICE
}
