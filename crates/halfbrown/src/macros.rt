//! `hashmap!`.

/// A `HashMap` of the written pairs with the default builder, made by `HashMap::from_array`. It is a `Result`. A last
/// comma is allowed. Without pairs it is an empty vector, takes no memory and never fails.
///
/// ```
/// let names: HashMap<u64, &'static str> = hashmap! {in alloc; 1 => "one", 2 => "two"}?;
/// assert_eq!(rt; names.get(&2), Some(&"two"));
/// ```
#[macro_export]
macro_rules! hashmap {
    (in $alloc:expr $(;)?) => {
        $crate::HashMap::with_capacity($alloc, 0)
    };
    (in $alloc:expr; $($key:expr => $value:expr),+ $(,)?) => {
        $crate::HashMap::<_, _>::from_array($alloc, [$(($key, $value)),+])
    };
}
