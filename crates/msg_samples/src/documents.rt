//! Documents.

/// Two classes, an object of the lower one, and a send that finds the method of the upper one.
/// `value`, selector 2, is implementation 1.
pub const SMALL: &str =
    r#"{"version":1,"classes":[{"name":"Root","super":null,"methods":[["value","r_value"]],"class_methods":[]},{"name":"Child","super":"Root","methods":[],"class_methods":[]}],"categories":[],"objects":[{"name":"c","class":"Child"}],"imps":[{"name":"r_value","class":"Root","meta":false,"args":0,"body":7}],"items":[{"send":[["obj","c"],"value"]}]}"#;

/// Five classes, of which `Child` and `Grand` are below `Root`, and objects of them. It has each
/// form of a body. `value` and `name`, selectors 2 and 3, are implementations 1 and 2 of `Root`,
/// and `name` is implementation 11 of `Child`.
pub const IMAGE: &str = r#"{"version":1,"classes":[
{"name":"Root","super":null,"methods":[["value","r_value"],["name","r_name"],
 ["down:","r_down"],["big","r_big"],["small","r_small"],["spread:","r_spread"],
 ["top","r_top"],["over","r_over"],["bad","r_bad"]],"class_methods":[["make","r_make"]]},
{"name":"Child","super":"Root","methods":[["name","c_name"]],"class_methods":[]},
{"name":"Grand","super":"Child","methods":[],"class_methods":[]},
{"name":"Side","super":"Root","methods":[["tag","r_name"]],"class_methods":[]},
{"name":"Proxy","super":null,
 "methods":[["forwardingTargetForSelector:","p_target"]],"class_methods":[]}],
"categories":[
{"class":"Side","methods":[["tag","s_two"]],"class_methods":[]},
{"class":"Side","methods":[["tag","s_three"]],"class_methods":[]}],
"objects":[{"name":"c","class":"Child"},{"name":"g","class":"Grand"},
{"name":"s","class":"Side"},{"name":"p","class":"Proxy"},{"name":"q","class":"Proxy"}],
"imps":[
{"name":"r_value","class":"Root","meta":false,"args":0,"body":7},
{"name":"r_name","class":"Root","meta":false,"args":0,"body":1},
{"name":"r_down","class":"Root","meta":false,"args":1,"body":
 ["if",["arg",0],["send",["self"],"down:",["sub",["arg",0],1]],0]},
{"name":"r_big","class":"Root","meta":false,"args":0,"body":
 ["send",null,"plus:",["add",9223372036854775807,1]]},
{"name":"r_small","class":"Root","meta":false,"args":0,"body":
 ["send",null,"plus:",["add",1,1]]},
{"name":"r_spread","class":"Root","meta":false,"args":1,"body":
 ["if",["arg",0],["add",["send",["self"],"spread:",["sub",["arg",0],1]],
 ["send",["self"],"spread:",["sub",["arg",0],1]]],1]},
{"name":"r_top","class":"Root","meta":false,"args":0,"body":
 ["add",["add",["add",["add",["add",["add",
 ["send",["self"],"spread:",12],["send",["self"],"spread:",9]],
 ["send",["self"],"spread:",8]],["send",["self"],"spread:",7]],
 ["send",["self"],"spread:",3]],["send",["self"],"spread:",1]],
 ["send",["self"],"spread:",0]]},
{"name":"r_over","class":"Root","meta":false,"args":0,"body":["send",["self"],"top"]},
{"name":"r_bad","class":"Root","meta":false,"args":0,"body":["add",["self"],1]},
{"name":"r_make","class":"Root","meta":true,"args":0,"body":["self"]},
{"name":"c_name","class":"Child","meta":false,"args":0,"body":["add",10,["super","name"]]},
{"name":"s_two","class":"Side","meta":false,"args":0,"body":2},
{"name":"s_three","class":"Side","meta":false,"args":0,"body":3},
{"name":"p_target","class":"Proxy","meta":false,"args":1,"body":
 ["if",["eq",["arg",0],["sel","value"]],["obj","g"],
 ["if",["eq",["arg",0],["sel","name"]],["self"],
 ["if",["eq",["arg",0],["sel","go"]],null,
 ["if",["eq",["arg",0],["sel","make"]],5,
 ["if",["eq",["self"],["obj","p"]],["obj","q"],["obj","p"]]]]]]}],
"items":[]}"#;
