mod gates;
mod rows;
mod values;
